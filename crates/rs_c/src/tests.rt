//! Tests that call the functions as a program in C does. They show that the calls can allocate memory, which no
//! contract states. The tables are larger than a stack, and only an optimized build copies them without using the
//! stack. So `rt test` runs these tests, and two of them fail in `rt try`.
ghost use Rattle.std.specs.Prelude.{◌≡◌, length, IfOk};
ghost use Rattle.rs_ffi.specs.Tables.{AreStamped, AreTables};

use crate::{
    rs_decode, rs_decode_shards, rs_encode, rs_encode_shards, rs_fault_text, rs_supports,
    rs_tables_make,
};
use rs_ffi::fault::RsFault;
use rs_ffi::layouts::RsShard;
use rs_ffi::tables::RsTables;
use std::alloc::{AllocError, Global};
use std::process::Abort;
use std::test::Fail;

// Tables that were not made.
static UNMADE: [RsTables; 1] = [RsTables {
    products: [[0; 16]; 65536],
    skew: [0; 65535],
    log_walsh: [0; 131071],
    stamp: 0,
}];

const NONE: RsFault = RsFault {
    number: 0,
    first: 0,
    second: 0,
    third: 0,
};

// Returns tables that were not made. Their memory is leaked, because freeing the vector would move the tables over the
// stack, and they are too large for the stack.
fn unmade(alloc: Global) -> Result<&'static mut [RsTables], AllocError>
    ensures { IfOk result (λ tables. length tables.now ≡ 1) }
{
    let tables = Vec::from_slice(alloc, &UNMADE)?;
    Ok(tables.leak())
}

// Encodes three originals, and checks their recovery shards.
fn check_encode(rt: &impl Abort, alloc: Global, tables: &RsTables)
    requires stamped { AreStamped tables.now → AreTables tables.now }
{
    let mut fault = NONE;
    let mut recovery = [9; 4];
    let number = rs_encode(
        alloc,
        tables,
        3,
        2,
        2,
        &[2, 0, 0, 0, 4, 0],
        &mut recovery,
        &mut fault,
    );
    assert_eq!(rt; number, 0);
    assert_eq!(rt; recovery, [3, 0, 5, 0]);
}

// Loses the first and the last of three originals, and checks that they come back.
fn check_decode(rt: &impl Abort, alloc: Global, tables: &RsTables)
    requires stamped { AreStamped tables.now → AreTables tables.now }
{
    let mut fault = NONE;
    let mut originals = [8, 8, 0, 0, 8, 8];
    let number = rs_decode(
        alloc,
        tables,
        3,
        2,
        2,
        &mut originals,
        &[3, 0, 5, 0],
        &[0, 1, 0, 1, 1],
        &mut fault,
    );
    assert_eq!(rt; number, 0);
    assert_eq!(rt; originals, [2, 0, 0, 0, 4, 0]);
}

#[test]
fn three_originals_come_back(rt: HostRuntime) -> Result<(), Fail> {
    let alloc = rt.alloc();
    let tables = &mut unmade(alloc)?[0];
    assert_eq!(rt; rs_tables_make(alloc, tables), 0);
    assert_eq!(rt; rs_supports(3, 2), 1);
    check_encode(&rt, alloc, tables);
    check_decode(&rt, alloc, tables);
    Ok(())
}

#[test]
fn shards_anywhere_come_back(rt: HostRuntime) -> Result<(), Fail> {
    let alloc = rt.alloc();
    let tables = &mut unmade(alloc)?[0];
    assert_eq!(rt; rs_tables_make(alloc, tables), 0);
    let mut fault = NONE;
    let (mut first, mut second) = ([9; 2], [9; 2]);
    let originals: [&[u8]; 3] = [&[2, 0], &[0, 0], &[4, 0]];
    let mut rooms: Vec<&mut [u8]> = Vec::new(alloc);
    rooms.push(&mut first)?;
    rooms.push(&mut second)?;
    let number = rs_encode_shards(alloc, tables, 3, 2, &originals, &mut rooms, &mut fault);
    drop(rooms);
    assert_eq!(rt; number, 0);
    assert_eq!(rt; (first, second), ([3, 0], [5, 0]));
    let own = [RsShard {
        index: 1,
        bytes: &[0, 0],
    }];
    let other = [
        RsShard {
            index: 1,
            bytes: &[5, 0],
        },
        RsShard {
            index: 0,
            bytes: &[3, 0],
        },
    ];
    let mut rooms: Vec<&mut [u8]> = Vec::new(alloc);
    rooms.push(&mut first)?;
    rooms.push(&mut second)?;
    let number = rs_decode_shards(alloc, tables, 3, 2, &own, &other, &mut rooms, &mut fault);
    drop(rooms);
    assert_eq!(rt; number, 0);
    assert_eq!(rt; (first, second), ([2, 0], [4, 0]));
    Ok(())
}

// Checks that an encode notices that these tables were not made, and returns the fault.
fn fault_of_encode(rt: &impl Abort, alloc: Global, tables: &RsTables) -> RsFault
    requires stamped { AreStamped tables.now → AreTables tables.now }
{
    let mut fault = NONE;
    let mut recovery = [9; 4];
    let number = rs_encode(
        alloc,
        tables,
        3,
        2,
        2,
        &[2, 0, 0, 0, 4, 0],
        &mut recovery,
        &mut fault,
    );
    assert_eq!(rt; number, 15);
    assert_eq!(rt; recovery, [9; 4]);
    fault
}

#[test]
fn unmade_tables_are_noticed(rt: HostRuntime) {
    let fault = fault_of_encode(&rt, rt.alloc(), &UNMADE[0]);
    let mut text = [b'#'; 20];
    assert_eq!(rt; rs_fault_text(&fault, &mut text), 51);
    assert_eq!(rt; &text, b"tables not made: rs_");
}
