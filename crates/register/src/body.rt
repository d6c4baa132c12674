// What a register loads.

/// The bytes of a forms body, three a form: kind, a, b; or of a tree body, a set of eight, low byte first, then three
/// a step: number, a, b. They may be any bytes: a load refuses what is no such body.
#[derive(Clone, Copy, PartialEq, Eq, Debug)]
pub enum Body<'a> {
    Forms(&'a [u8]),
    Tree(&'a [u8]),
}
