// The tests by crates, and what several of them see.
mod made;
mod messages;
mod node_walk_tests;
mod pixel_strips_tests;
mod pixel_trace_tests;
mod shelf_tests;
mod view_frame_tests;
mod visplanes_tests;
mod vissprites_tests;
mod wall_columns_tests;
mod wall_edges_tests;
