//! Laws of outcomes of labels, and of the definitions of a picture. A law is the contract of an
//! empty function: a call of the function states the law.

pub use ariadne_picture::laws::{
    bars_stand_case_by_case, best_is_the_first_unbeaten, blocks_are_whole,
    bytes_draw_as_characters, cells_hold_no_escapes, cells_take_the_columns_of_their_texts,
    colors_move_nothing, cut_lines_fit, cut_pictures_can_be_read_back,
    ends_of_gutter_labels_are_traced, every_picture_can_be_read, groups_are_the_only_cutting,
    groups_begin_at_their_least_line, groups_have_their_sources, gutter_bars_are_whole,
    gutter_columns_show_their_strokes, gutter_labels_are_read_in_one_way,
    gutter_labels_have_a_first_and_a_last_row, in_order_is_a_stable_sort, inline_labels_are_traced,
    labels_end_no_earlier, letters_are_seen_whole, lines_are_found_in_one_way,
    lines_are_whole_without_a_width, lone_lines_are_underlined, margins_have_no_width,
    messages_have_rows_of_their_own, no_gutter_stroke_is_without_a_cause,
    no_stroke_is_without_a_cause, orders_of_a_picture, pictures_are_read_in_one_way,
    pictures_can_be_read_back, rows_are_lines, rows_are_the_only_list,
    rows_keep_the_columns_of_their_line, rows_stand_in_order, source_rows_fit,
    strokes_have_the_colors_of_their_labels, strokes_lead_to_what_is_seen,
    texts_stand_behind_margin_and_gutter, the_last_gutter_column_has_no_bar,
};
pub use ariadne_report::laws::labels_are_drawn_or_listed;
