//! Tests of two servers over sockets (`fed_loop`). It has no code of its own.
#![tactic(auto)]

#[cfg(test)]
mod tests;
