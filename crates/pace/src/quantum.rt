// A quantum: the wait from which doubling starts.
use super::LARGEST_QUANTUM;
use source::setting::Setting;

// From 1 to 1,000,000 ticks.
pub type Quantum = Setting<1, LARGEST_QUANTUM>;
