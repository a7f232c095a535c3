//! Small instances of what the laws over regions ask of a refactoring (`jr_kept_references`,
//! `jr_image_code`): each premise is shown where an earlier form of it was false. Nothing in it runs.
#![tactic(auto)]
