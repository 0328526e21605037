//! The laws can be called, at types too that have no order of their own.

use ariadne::laws::{
    bars_stand_case_by_case, best_is_the_first_unbeaten, blocks_are_whole,
    bytes_draw_as_characters, cells_hold_no_escapes, cells_take_the_columns_of_their_texts,
    colors_move_nothing, ends_of_gutter_labels_are_traced, every_picture_can_be_read,
    groups_are_the_only_cutting, groups_begin_at_their_least_line, groups_have_their_sources,
    gutter_bars_are_whole, gutter_columns_show_their_strokes, gutter_labels_are_read_in_one_way,
    gutter_labels_have_a_first_and_a_last_row, in_order_is_a_stable_sort, inline_labels_are_traced,
    labels_are_drawn_or_listed, labels_end_no_earlier, lines_are_found_in_one_way,
    lone_lines_are_underlined, margins_have_no_width, messages_have_rows_of_their_own,
    no_gutter_stroke_is_without_a_cause, no_stroke_is_without_a_cause, orders_of_a_picture,
    pictures_are_read_in_one_way, pictures_can_be_read_back, rows_are_lines,
    rows_are_the_only_list, rows_keep_the_columns_of_their_line, rows_stand_in_order,
    source_rows_fit, strokes_have_the_colors_of_their_labels, texts_stand_behind_margin_and_gutter,
    the_last_gutter_column_has_no_bar,
};

#[test]
fn every_law_can_be_called() {
    in_order_is_a_stable_sort::<u8>();
    best_is_the_first_unbeaten::<(u8, bool)>();
    orders_of_a_picture();
    groups_are_the_only_cutting();
    groups_begin_at_their_least_line();
    groups_have_their_sources::<u8, bool>();
    labels_are_drawn_or_listed::<u8, bool, ()>();
    labels_end_no_earlier::<u8, bool>();
    rows_stand_in_order();
    rows_are_the_only_list();
    gutter_labels_have_a_first_and_a_last_row();
    bars_stand_case_by_case();
    gutter_columns_show_their_strokes();
    the_last_gutter_column_has_no_bar();
}

#[test]
fn every_law_of_finished_pictures_can_be_called() {
    blocks_are_whole::<u8, bool>();
    messages_have_rows_of_their_own::<u8, bool>();
    inline_labels_are_traced::<u8, bool>();
    ends_of_gutter_labels_are_traced::<u8, bool>();
    gutter_bars_are_whole::<u8, bool>();
    rows_keep_the_columns_of_their_line::<u8, bool>();
    no_stroke_is_without_a_cause::<u8, bool>();
    no_gutter_stroke_is_without_a_cause::<u8, bool>();
    strokes_have_the_colors_of_their_labels::<u8, bool>();
    lone_lines_are_underlined::<u8, bool>();
    every_picture_can_be_read::<u8, bool>();
}

#[test]
fn every_law_of_readings_can_be_called() {
    lines_are_found_in_one_way::<u8, bool>();
    gutter_labels_are_read_in_one_way::<u8, bool>();
    pictures_are_read_in_one_way::<u8, bool>();
    pictures_can_be_read_back::<u8, bool>();
}

#[test]
fn every_law_of_what_is_sent_can_be_called() {
    cells_take_the_columns_of_their_texts::<u8, bool>();
    rows_are_lines::<u8, bool>();
    colors_move_nothing::<u8, bool>();
    cells_hold_no_escapes::<u8, bool>();
    bytes_draw_as_characters::<u8, bool>();
}

#[test]
fn every_law_of_columns_can_be_called() {
    texts_stand_behind_margin_and_gutter();
    source_rows_fit();
    margins_have_no_width::<u8, bool>();
}
