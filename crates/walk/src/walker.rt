// The walker and the call that opens one, as `walk_states` has them.
pub use walk_states::{Walker, open};
