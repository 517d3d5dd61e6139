//! The layers below and above selected code, composed: from code to the bytes of an image, and from
//! what a module means to its code.
//!
//! Of valid code, whoever made it and whatever it does, `specs/Codes` says what carries it into an
//! image (`Carriage`): any admitted routes of its network, and placed code that was made of them.
//! An image that was assembled of such placed code follows the codes until they get stuck
//! (`placed_codes_are_followed`). Nothing asks how routes were found.
//!
//! What a module means comes on top of that. `specs/Tidied` says which codes stand for its
//! procedures: tidy code in the place of what selection answers. Such codes do what the module means
//! and are never stuck (`tidied_codes_do_as_meant`), so an image that follows them does it too
//! (`followers_do_as_meant`, `specs/Follows`). Where the module is short (`IsShort` of vc_checked), an
//! image has room for it (`short_modules_fit_an_image`).
#![tactic(auto)]

pub mod laws;
