//! A plan and a stream from their first call to their last. Statuses and random searches stand in the tests in C.
mod plan;
mod stream;
