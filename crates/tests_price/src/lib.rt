//! Tests of prices and of what is laid at them, on codes that stand in tables as text.
//!
//! `rows` has the codes and what is said of them, and `tabled` goes through the tables. At prices,
//! `at_prices` asks `priced` for values and least paths, `planned` for plans, orders and how laying
//! ends, and `laid` for paths that are laid or are not. `settled` has what settling makes of routes,
//! `rounded` what the first round tries, and `raised` that an ascent finds the same once more; what
//! rounds come to is tried from outside (scripts/tables/rounds.py). `reading`, `putting` and `made`
//! are what all share. Nothing here is used by another crate.
#![tactic(auto)]

#[cfg(test)]
mod at_prices;
#[cfg(test)]
mod laid;
#[cfg(test)]
mod made;
#[cfg(test)]
mod planned;
#[cfg(test)]
mod priced;
#[cfg(test)]
mod putting;
#[cfg(test)]
mod raised;
#[cfg(test)]
mod reading;
#[cfg(test)]
mod rounded;
#[cfg(test)]
mod rows;
#[cfg(test)]
mod settled;
#[cfg(test)]
mod tabled;
