// The engine: the least relations of a table, worked out in lent memory by the uses of the rules.
//   stretches  stretches by their numbers
//   q_facts    rules 3, 6 and 7 on all Q facts
//   turns      whose turn it is: rules 5 and 2 on a stretch of P facts, and which stretch is next
//   work       the check's own list of step rows: rule 4 in each turn, until nothing lacks
//   run        rule 1, the budget and the answer; the smallest missing position
#![tactic(auto)]

mod q_facts;
pub mod run;
mod stretches;
mod turns;
mod work;
