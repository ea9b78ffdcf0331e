//! What no clause says of boards, machine and keys, and no program reaches: worked rows, and each call once with ample memory.
#![tactic(auto)]

#[cfg(test)]
mod boards;
#[cfg(test)]
mod keys;
#[cfg(test)]
mod own_board;
#[cfg(test)]
mod steps;
