//! What constants and images are, in tables that were worked out by hand from C99 and the sizes of its types
//! here.

mod addresses;
mod constants;
mod ends;
mod images;
mod parts;
