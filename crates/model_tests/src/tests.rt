//! The tables, by what they are of.

mod accounts;
mod drafts;
mod entries;
mod files;
mod names;
mod packages;
mod pages;
mod services;
