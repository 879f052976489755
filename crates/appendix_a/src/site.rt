use crate::findings::Finding;
use crate::loops::Loops;
use crate::names::Names;
use gl_numbers::Stage;

/// What an expression stands in.
#[derive(Clone, Copy)]
pub(crate) struct Site<'a> {
    /// What the declared names are.
    pub names: Names<'a>,
    /// Its stage.
    pub stage: Stage,
    /// The loops around it, those aside in whose header it stands.
    pub loops: &'a Loops<'a>,
    /// The name of the index, where it stands in the header of a loop.
    pub header: Option<&'a [u8]>,
}

impl Site<'_> {
    ghost use Rattle.std.specs.Prelude.{◌≡◌};
    ghost use Rattle.appendix_a.specs.Site.{site_of};
    ghost use Rattle.appendix_a.specs.Expressions as spec;

    /// Whether a name is that of the index in the header of whose loop it stands.
    pub(crate) fn is_header(&self, name: &[u8]) -> bool
        ensures { result ≡ spec.is_header (site_of self.now) name.now }
    {
        match self.header {
            Some(index) => index == name,
            None => false,
        }
    }

    /// Whether an expression is the index of a loop around it.
    pub(crate) fn is_index(&self, found: Finding) -> bool
        ensures { result ≡ spec.is_index (site_of self.now) found }
    {
        self.loops.has(found.variable)
    }

    /// Whether the shader is a vertex shader.
    pub(crate) fn is_vertex(&self) -> bool
        ensures { result ≡ spec.is_vertex (site_of self.now).stage }
    {
        match self.stage {
            Stage::Vertex => true,
            Stage::Fragment => false,
        }
    }
}
