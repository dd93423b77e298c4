//! A view that is asked.

use aea_lattice::{BlockId, Lattice};
use aea_view::View;
use std::test::Fail;

#[test]
fn the_answers_are_the_list_however_often_it_is_asked(rt: HostRuntime) -> Result<(), Fail> {
    let lattice = Lattice::new(2, 2, 2, 3).ok_or("no lattice")?;
    let absent = [0, 4, 5, 8];
    let view = View::new(&lattice, |b: BlockId| !absent.contains(&lattice.number(b)));
    for round in 0..3 {
        for k in 0..lattice.blocks() {
            assert!(rt;
                view.has(lattice.block(k)) == ![0, 4, 5, 8].contains(&k),
                "block {k} in round {round}"
            );
        }
    }
    Ok(())
}
