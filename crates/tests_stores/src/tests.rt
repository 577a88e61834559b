//! What the crates between a store and the operators answer: `store_api`, `tuple_stream`, `bucket_table` and
//! `partition_stack`.

mod stacks;
mod stores;
mod streams;
mod tables;
