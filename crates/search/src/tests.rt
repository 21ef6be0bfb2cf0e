// A branch of two inputs, one of them open, at their places and past them.
use crate::branch::Branch;
use circuit::{Assignment, Value};
use cubes::Cube;

#[test]
fn place_past_the_branch(rt: HostRuntime) {
    let told = Branch::of_cube(Cube::low(1, 1), 2).map(|branch| {
        [0, 1, 2, 32].map(|place| branch.input(place).look(0))
    });
    assert_eq!(rt; told, Some([Some(true), None, Some(false), Some(false)]));
}
