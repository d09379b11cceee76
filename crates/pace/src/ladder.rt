// The steps of one class, from its wait at epoch 0 on.
ghost use Rattle.std.specs.Prelude.{◌≡◌, ℕ, ◌*◌, ◌^◌, ◌<◌, ◌≤◌, length, slice_index};

// A class has no more steps than this.
pub(crate) const MOST_STEPS: u32 = 16;

// The first `count` waits are the steps: the first is a quantum, each one at least the quantum doubled as often as
// its place says, and none passes the horizon. An array and a count, since steps are copied, and an
// `ArrayVec` is not.
#[derive(Clone, Copy)]
pub struct ClassSteps {
    pub(crate) count: u32,
    pub(crate) waits: [u32; 16],
    ghost table: { length waits ≡ 16 },
    ghost few: { count ≤ 16 },
    ghost low: { 0 < count → 1 ≤ slice_index waits 0 },
    ghost high: { 0 < count → slice_index waits 0 ≤ 1000000 },
    ghost rising: { (i : ℕ) → i < count → slice_index waits 0 * 2 ^ i ≤ slice_index waits i },
    ghost within: { (i : ℕ) → i < count → slice_index waits i ≤ 1000000000 },
}
