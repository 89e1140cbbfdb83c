//! Tests of `question_plans`, `plan_answers`, `answer_tables`, `setup_points`, `call_times`, `timed_files`, `variant_answers` and `packet_questions`,
//! in a crate of their own, so that no function of those is proved again with them, and in one, so that what they stand on is read once.
#![tactic(auto)]

#[cfg(test)]
mod answers;
#[cfg(test)]
mod due;
#[cfg(test)]
mod files;
#[cfg(test)]
mod packets;
#[cfg(test)]
mod plans;
#[cfg(test)]
mod points;
#[cfg(test)]
mod tables;
#[cfg(test)]
mod times;
#[cfg(test)]
mod variants;
