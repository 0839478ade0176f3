// Question files and replies as bytes.

#![tactic(auto)]

pub mod questions; // questions.rt: a question file, judged question by question, and its questions by offset
pub mod reply_bytes; // reply_bytes.rt: replies by value, and as bytes
