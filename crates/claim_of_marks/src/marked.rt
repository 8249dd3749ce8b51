// The facts that a claim is written of.
ghost use Rattle.std.specs.Prelude.{◌≤◌};
ghost use Rattle.files.specs.Table.{most_facts};
ghost use Rattle.store.specs.Marking.{room};

// The facts that the first w bytes of a memory mark, for a table with w facts. w stands beside the memory, which may be longer: `positions_in`, of
// which the contracts speak, is of both.
#[derive(Clone, Copy)]
pub struct MarkedFacts<'a> {
    pub mem: &'a [u8],
    pub w: usize,
    ghost few: { w ≤ most_facts },
    ghost enough: { w ≤ room mem.now },
}
