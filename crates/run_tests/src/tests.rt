// What the tests show, of runs of the program:
//
// | Test | What it shows |
// |---|---|
// | `flat_tests` | a tiled flat, what refuses it, its calls that fail; the made files; words of no command |
// | `refusal_tests` | damaged tables and WADs, each with its line |
// | `level_tests` | a room row by row, its light and its trace; sky above and below; too many planes |
// | `zone_tests` | the sizes that an audit tells, frames in zones that are enough, ends in smaller ones |
// | `frame_tests` | PPMs, odd paths and patches, the art of a second WAD |
// | `weapon_tests` | what a weapon covers, and that a trace has the colours of the frames |
// | `trim_tests` | trimmed files, which render as their levels do |
// | `fault_tests` | calls and puts that fail |
mod fault_tests;
mod files;
mod flat_tests;
mod frame_tests;
mod level_tests;
mod refusal_tests;
mod runs;
mod trim_tests;
mod weapon_tests;
mod zone_tests;
