//! Tests of what is read and written that no session shows, by the calls of command_read,
//! report_text, model_json, table_csv, model_core and word_table.
#![tactic(auto)]

#[cfg(test)]
mod commands;
#[cfg(test)]
mod loads;
#[cfg(test)]
mod replies;
#[cfg(test)]
mod tables;
#[cfg(test)]
mod words;
