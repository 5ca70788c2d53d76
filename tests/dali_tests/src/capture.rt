//! Tests of captures: each line of a log, each word of a dump, frames as edges of a bus, and each mistake with its
//! line.

mod dumps;
mod edges;
mod logs;
mod reading;
