//! The command line of `pktkit`: `requests` has its arguments and what they request, `help` the text below its options.

mod help;
pub(crate) mod requests;
