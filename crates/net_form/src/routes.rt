// Where strands go.

use pra_base::Place;
use pra_list::Seq;
use pra_packed::Packed;

/// A path for each strand: a place for each of its layers.
#[derive(Debug, PartialEq, Eq, Drop)]
pub struct Routes {
    pub places: Packed<Place>,
}

/// A place for each tie group.
#[derive(Debug, PartialEq, Eq, Drop)]
pub struct Plan {
    pub places: Seq<Place>,
}

/// Where a path has to begin and to end.
#[derive(Clone, Copy, Debug, PartialEq, Eq, Drop)]
pub struct Ends {
    pub first: Option<Place>,
    pub last: Option<Place>,
}
