ghost use Rattle.std.specs.Prelude.{◌≡◌, drop};
ghost use Rattle.appendix_a.specs.Site.{site_of};
ghost use Rattle.appendix_a.specs.Expressions as spec;

use crate::site::Site;
use glsl_tree::Callee;

/// Whether the name of a built-in function is that of one that looks up textures.
fn is_look_up(name: &[u8]) -> bool
    ensures { result ≡ spec.is_look_up name.now }
{
    name.starts_with(b"texture")
}

/// Whether a call makes a value of its arguments alone.
pub(crate) fn makes(site: &Site<'_>, callee: &Callee, number: u32) -> bool
    ensures { result ≡ spec.makes (site_of site.now) callee.now number }
{
    match callee {
        Callee::Basic(_) => true,
        Callee::Name(name) if number == 0 => !is_look_up(name.as_slice()),
        Callee::Name(_) => site.names.is_structure(number),
    }
}

/// Whether the parameter at a place of what is called gives a value back.
pub(crate) fn called_gives_back(site: &Site<'_>, callee: &Callee, number: u32, place: usize) -> bool
    ensures { result ≡ spec.first_gives_back (drop place (spec.called_parameters (site_of site.now) callee.now number)) }
{
    match callee {
        Callee::Basic(_) => false,
        Callee::Name(_) => site.names.gives_back(number, place),
    }
}
