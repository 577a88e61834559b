mod arena;
mod books;
mod cleans;
mod lists;
mod pages;
mod sessions;
