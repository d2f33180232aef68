//! What torn, damaged and hostile input does to the command, and what each pull and push that fails does.
#![tactic(auto)]

#[cfg(test)]
mod tests;
