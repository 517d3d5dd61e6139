// The paths of routes, read and written over.

ghost use Rattle.std.specs.Prelude.{◌≡◌, ◌<◌, ◌+◌, length, IsTrue};
ghost use Rattle.net_form.specs.Admitted.{strand_at};
ghost use Rattle.net_form.specs.Flow.{AreRoutes};
ghost use Rattle.net_dual.specs.Paths.{path_in};
ghost use Rattle.al_laws.specs.Parts.{with_path};

use net_form::{Net, Routes};
use pra_base::Place;

/// The path of a strand.
pub(crate) fn path_at<'a>(_net: &Net, routes: &'a Routes, strand: usize) -> &'a [Place]
    requires routes { AreRoutes _net.now routes.now }
    requires strand { strand < length _net.now.strands }
    ensures path { result.now ≡ path_in routes.now strand }
    ensures long { (strand_at _net.now strand).first + length result.now ≡
        (strand_at _net.now strand).last + 1 }
{
    routes.places.at(strand)
}

// Whether two paths of as many layers are one path.
fn is_same_path(path: &[Place], other: &[Place]) -> bool
    requires { length path.now ≡ length other.now }
    ensures { IsTrue result → path.now ≡ other.now }
{
    for at in 0..path.len() {
        if path[at].number() != other[at].number() {
            return false;
        }
    }
    true
}

/// Writes a path over that of a strand, in its memory. Nearly always it is the one that stands
/// there, since most strands stay in memory; then nothing is written.
pub(crate) fn write_path(_net: &Net, routes: &mut Routes, strand: usize, path: &[Place])
    requires routes { AreRoutes _net.now routes.old }
    requires strand { strand < length _net.now.strands }
    requires path { (strand_at _net.now strand).first + length path.now ≡
        (strand_at _net.now strand).last + 1 }
    ensures path { routes.new ≡ with_path routes.old strand path.now }
    ensures routes { AreRoutes _net.now routes.new }
{
    if is_same_path(path, path_at(_net, routes, strand)) {
        return;
    }
    routes.places.overwrite(strand, path);
}
