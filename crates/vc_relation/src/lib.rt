//! How the store of a module's meaning stands in the state of selected code: where each location
//! is, and what is kept there. Definitions in `specs/`, and laws about them (`laws`).
//!
//! # How a location becomes a word
//!
//! The meaning (ob_mean) has locations: an object, and a path of fields and elements. The machine
//! (vc_code) has live calls with variables, and objects with words: the module's data, the
//! aggregates of each live call, and argument cells. Between them stand three steps, each a
//! definition that computes. Read `specs/` in this order.
//!
//! 1. `Layout`. `part_along` says how many words lie before the part of a variable to which a path
//!    leads. A checked module `IsLaidOut`: its variables follow on from data word 0, and so do the
//!    arrays, records and lent scalars of a procedure from aggregate word 0.
//! 2. `Homes`. The home of a parameter or local is a variable of the code (the first ones are the
//!    homes, parameters before locals), the cell of its argument, or a word of the aggregates.
//! 3. `Spots`. `placed` says where a location begins under a list of live calls: in a variable of
//!    the call at some depth, or in a word of an object. It needs the frames, since the machine
//!    names a call by the calls below it and the bytes of their frames.
//!
//! # The frames of two calls
//!
//! The module of `specs/Sample`, whose body has called `P(q[1].b, 5, 6)`; its places are worked out
//! in the law `locations_of_a_module`.
//!
//! ```text
//! VAR x: INTEGER; q: ARRAY 3 OF RECORD a, b: INTEGER END;
//! PROCEDURE P(VAR p: INTEGER; n, m: INTEGER);
//! VAR t: INTEGER; r: RECORD a, b: INTEGER END; u: INTEGER;      R(m); R(u) lend m and u
//!
//! depth 2: P     variables   v0 = p, the address of Data word 4      v1 = n      v2 = t
//!                cell        argument 2 = m
//!                aggregates  word 0 = r.a    1 = r.b    2 = u
//! depth 1: body  no variables that are homes, no aggregates
//! always         Data        word 0 = x      1 = q[0].a    2 = q[0].b    3 = q[1].a    4 = q[1].b
//!                                            5 = q[2].a    6 = q[2].b
//! ```
//!
//! # The relation
//!
//! `Represents t calls store s` (`specs/Relation`) is said of all live calls at once, so a callee
//! need not be shown to leave its callers' variables alone: the relation at its end says what they
//! hold. It has three fields: the same procedures are live; each scalar location keeps the word of
//! its number at its spot (of BOOLEAN, 0 or 1); the variable of each VAR parameter has the address
//! of what was lent to it, which is a word of the module's data or of a call below.
//!
//! # What the layers above use
//!
//! - `assignment_to_a_word`: a write of a word is an assignment, whatever names it: a variable of
//!   the module, an element, a lent local, a VAR parameter. So aliases need no case of their own.
//! - `assignment_to_a_variable`: the same for a variable of the running call.
//! - `temporaries_are_free`: variables behind the homes make no difference, nor does where the
//!   running call stands.
//! - `a_return_keeps_the_relation`, `var_parameters_have_addresses`.
//! - Behind them: `parts_lie_within`, `parts_have_no_word_in_common`, `a_word_is_of_one_scalar`,
//!   `locations_have_spots_of_their_own`, `a_write_is_to_one_spot`.
//!
//! The premise `IsLaidOut` is what a checked module has of its types and its storage.
#![tactic(auto)]

pub mod home;
pub mod laws;

pub use home::Home;
