// Small flights, judged.

mod changes;
mod counted;
mod flights;
mod looks;
mod runs;
