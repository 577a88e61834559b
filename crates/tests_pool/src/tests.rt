//! A pool over slots in memory: worked rows, and mixed calls beside a plain pool.

mod flights;
mod limits;
mod loans;
mod marks;
mod mixed;
mod moves;
mod owner;
mod owner_rows;
mod page_moves;
mod page_steps;
mod pins;
mod scripts;
mod shows;
mod steps;
mod stores;
mod sums;
mod world;
mod writes;
