// Tables of codes, with what is found at prices, what settling makes of routes, and what rounds
// come to.
//
// A row is lines, and what it does not say is not asked. Behind its name stand its code, what it is
// weighed by (`size`, `speed` or `both`), and the least cost of all routes that are admitted;
// `reached` stands there where rounds come to it. Costs `fall` where rounds end below the home
// routes, and bounds `rise` where round 1 raises the bound. `first` is what the first round has:
// its cost and bound, the plan and the order that it tried, and the paths that were laid. Then
// lines of routes, what they cost, and whether a strand or a variable has a cheaper way (`loose`)
// or none has (`settled`).
//
// What stands behind `@` is found at prices, of which those that are 0 are left out; without it a
// row is asked at prices of nothing. `value` is that of the network. A `path` is a least one, of a
// strand with its two ends (a dot is free) past registers and memory pairs that are taken. `found`
// are the plan, by the numbers of its places, and the order. `may be` has how laying by these may
// end, over all choices among least paths, unless they are too many. Then paths that are laid by
// plan and order, or are not: of these the first strand that goes wrong, what its path costs, if it
// may go there at all, and the least that it would pay. And a strand that can be blocked, with what
// is taken then. Values and costs at prices are in units of 1/1024, registers that are taken stand
// as bits behind their layer.

mod branches;
mod forms;
mod modules;
mod selected;
mod small;
mod worked;

pub(crate) use branches::BRANCHES;
pub(crate) use forms::FORMS;
pub(crate) use modules::MODULES;
pub(crate) use selected::SELECTED;
pub(crate) use small::SMALL;
pub(crate) use worked::WORKED;
