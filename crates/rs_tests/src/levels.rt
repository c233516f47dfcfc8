//! Tests of the three levels of use, as the documents quote them. They show that the calls can allocate memory, which
//! no contract states.
use rs_examples::levels;

#[test]
fn what_was_lost_comes_back(rt: HostRuntime) {
    let alloc = rt.alloc();
    let came_back = [
        levels::over_slices(alloc),
        levels::with_objects(alloc),
        levels::with_a_rate_and_an_engine(alloc),
    ];
    assert_eq!(rt; came_back, [Ok(true); 3]);
}
