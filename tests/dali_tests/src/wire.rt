//! Tests of the wire: worked levels and edges of IEC 62386-101:2014, the limits of each time, and what is heard after a
//! forward frame.

mod draws;
mod edges;
mod receiver;
mod sender;
mod window;
