// The tests by crates, and the sentences of faults.
mod command_line_tests;
mod csv_tables_tests;
mod messages;
mod refusals_tests;
