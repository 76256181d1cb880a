//! Tests of images as bytes, over `ob_image` and `verify`: images whose bytes were worked out without this
//! repository's code are read, verified and written again in version 2, each of their front parts is
//! refused at its length, and tables of single wrong bytes say where reading stops, in each field of both
//! versions and on both sides of each limit. Stands on `ob_image` and `ob_code`; nothing stands on it.
#![tactic(auto)]

#[cfg(test)]
mod tests;
