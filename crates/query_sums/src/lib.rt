// What counts and seeks share: the leaves before the bound of a key, as a sum of slot numbers level by level.

#![tactic(auto)]

ghost use Rattle.std.specs.Prelude.{◌<◌};

pub mod chains; // chains.rt: the levels by LV, and chains of them that bounds pass at once
pub mod levels; // levels.rt: the sum of a bound's slot numbers on the levels below where its key has led
pub mod bounds; // bounds.rt: the bound of a key from where its way parts from another's

// A chain of levels on which every node has one branch alone, which continues: the first node of its first level, the nodes of each level, how many levels they are, and the leaves before that node.
#[derive(Clone, Copy)]
pub struct Chain {
    pub start: usize,
    pub width: usize,
    pub levels: usize,
    pub leaves: usize,
    ghost not_empty: { 0 < levels },
}
