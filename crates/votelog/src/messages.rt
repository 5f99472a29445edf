use phrases::failure::Failure;
use std::alloc::Global;
use std::fmt::Display;

// What to tell the user, if there is memory for it.
pub(crate) fn message<T: Display + Drop>(heap: Global, text: T) -> Failure {
    text.to_string(heap)
        .map_or_else(Failure::from, Failure::Message)
}
