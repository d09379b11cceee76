// A column of a row: how wide its field is, and the largest number that it may hold.
ghost use Rattle.std.specs.Prelude.{◌^◌, ◌<◌, ◌≤◌};

#[derive(Clone, Copy)]
pub struct Column {
    pub(crate) width: usize,
    pub(crate) limit: u64,
    ghost some: { 1 ≤ width },
    ghost narrow: { width ≤ 19 },
    ghost fits: { limit < 10 ^ width },
}
