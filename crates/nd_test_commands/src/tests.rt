//! The tests, by what they are about, and what they share.

mod asking;
mod blocks;
mod classes;
mod devices;
mod examples;
mod giving;
mod inputs;
mod pages;
mod parks;
mod scripts;
mod stands;
