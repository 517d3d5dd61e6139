//! The walk over resolved trees that selects code for them: expressions, variables with their
//! selectors, and conditions.
//!
//! # What is promised
//!
//! A run stands at the end of what the open block `at` has so far, in a state that has the store of
//! the meaning (`Starts` of `specs/Selects`, over the relation of vc_relation). Running on through
//! the code that a call adds, and over all code that is made later,
//!
//! - `select_expr` gives its variable the value that the meaning gives the expression, or comes to
//!   the expression's trap (`Selects`);
//! - `select_var` makes its target name the location that the meaning gives the variable, or comes
//!   to the trap of an index (`Locates`);
//! - `select_test` closes the block, and comes to the begin of the block that the condition's value
//!   chooses, or to its trap (`Tests`).
//!
//! Nothing but the running call changes: no object, no event, no word of the input; and the
//! variables that the code had before are as they were. A premise is that the tree is typed
//! (`specs/Typing` of vc_typed, which trees that break no rule are). It is of the meaning of the
//! code alone: for any tree the functions answer code in which the open block stays open and
//! earlier blocks stay as they are.
//!
//! # Valid code
//!
//! Beside its meaning each function says what the code that it adds keeps of valid code, for any
//! tree, over a certificate of what each block may read (vc_expr, `specs/Readable`):
//!
//! - `counts`, of `specs/Amounts`: how many instructions, local variables, constants and blocks are
//!   added at most, by the nodes of the tree; a parameter is never added.
//! - `ready`, of `specs/Certified`: code that was ready for more at the end of the block `at`
//!   (`IsReady`: it keeps the rules, is certified, and may read its homes there) is ready at the
//!   end of the new block `at`, with a certificate that is the same for blocks that were there
//!   (`StaysReady`). The answer may be read there, and all that might be read before of variables
//!   that were there. A condition closes its block (`EndsReady`): from targets that await no more
//!   than might be read at its end it is certified, and other blocks that were ready still are.
//! - `text`, of `specs/Blocks`: exactly so many blocks are added, by the tree, each of them as deep
//!   as the block `at`; they are entered in the order of the text, each once (`StaysInText`,
//!   `EndsInText`, over `specs/Text` of vc_build). `needs` counts: so what cannot trap has no block
//!   of its own.
//! - `hands_on`: as many blocks are open as before, so that of new blocks the new `at` alone may be
//!   open (`HandsOn` of vc_build). A condition leaves one less open (`closes`).
//!
//! A caller names for a block that it opens what may be read at the end of the block that leads
//! there; the law `blocks_wait` has it that blocks wait ready while code goes on elsewhere. The law
//! `a_body_starts` is an example of a run that starts.
//!
//! # Targets
//!
//! A variable of the source is in a variable of the code, or at an address (`Target`). A target
//! names a location in a state (`IsNamed` of `specs/Targets`): the relation has the location in
//! that variable, or in the word to which the address leads. The law `targets_name_locations` has
//! it of variables without selectors; a field, or an element by a constant, is so many words
//! further on; an index that is computed is tested, multiplied by the words of an element, and
//! added to the index so far (`specs/Indexes`).
//!
//! ```text
//! a[i].f, a from data word 6, elements of 3 words, f the second field
//!     check i, 20    copy v7, i    mul v7, k8 = 3    load v9, [global 6 + 4 + 4 * v7]
//! ```
//!
//! # `&` and OR
//!
//! As values they evaluate both sides where the right one has no index, DIV or MOD, since it never
//! traps then (`is_safe`); else the right side has a block of its own. As conditions they are
//! control: the left side leads to the block of the right side where it does not decide, and `~`
//! exchanges the targets.
//!
//! Read `specs/` in this order: `Targets`, `Indexes`, `Selects` (what code for a tree does),
//! `Amounts` and `Certified` (what it keeps); `Sample` is the example. The files of `proofs/` have
//! a lemma for each form; `Arms` and `Walking` join them to the functions of `select`, and
//! `ReadyArms` joins those of what is kept.
#![tactic(auto)]

pub mod constant;
pub mod element;
pub mod index;
pub mod laws;
pub mod load;
pub mod number;
pub mod operator;
pub mod parts;
pub mod root;
pub mod select;
pub mod split;
pub mod target;

pub use select::{select_expr, select_test, select_var};
pub use target::{Ctx, Setting, Target};
