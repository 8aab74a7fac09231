// The tests by crates, and the files that several of them read.
mod angle_tables_tests;
mod files;
mod frame_writer_tests;
mod level_tests;
mod levels;
mod lump_cache_tests;
mod outside_tests;
mod patch_columns_tests;
mod placed_things_tests;
mod sprite_book_tests;
mod texture_lists_tests;
mod wad_dir_tests;
mod zone_heap_tests;
