//! The program `rs`. `rs encode ENGINE K R HEX..` prints the recovery shards of the originals HEX. `rs decode ENGINE K
//! R ITEM..` prints the originals that are missing among the given shards. Each ITEM is an original `oI=HEX` or a
//! recovery shard `rI=HEX`, where I is the index of the shard.
#![tactic(auto)]

mod arguments;
mod coding;
mod command;
mod fault;
mod hexadecimal;
mod number;
mod program;
mod stream;
mod writing;

use crate::arguments::read_words;
use crate::program::run;
use crate::stream::Stream;
use std::process::ExitCode;

fn main(rt: HostRuntime) -> ExitCode {
    let mut out = Stream::new(rt.stdout());
    let mut err = Stream::new(rt.stderr());
    let status = match read_words(&rt) {
        Ok(words) => run(rt.alloc(), words.as_slice(), &mut out, &mut err),
        Err(fault) => {
            let _ = fault.report(rt.alloc(), &mut err);
            fault.status()
        }
    };
    ExitCode::from(status)
}
