/// A rule of appendix A that a shader breaks, by its number. 1: there is no `while` and no `do`. 2: a `for` begins with one
/// index of type int or float that is declared with a constant expression. 3: its condition compares the index with a
/// constant expression. 4: its step adds a constant expression to the index, or subtracts one. 5: its body does not change
/// the index (section 4). 6: an index is made of constants and loop indices, but on a uniform without sampler in a vertex
/// shader (section 5).
#[derive(Clone, Copy, Debug, PartialEq, Eq)]
pub struct Rule(pub u8);
