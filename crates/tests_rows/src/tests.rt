mod filters;
mod groups;
mod reading;
mod reports;
mod rows;
mod tables;
