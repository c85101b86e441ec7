// The request of a line, by its first word.
use output::Page;
use words::Line;

// Answers the request of a line; None where it is no request.
pub fn answer(line: &mut Line, store: &mut [u8], room: &mut [u8], page: &mut Page) -> Option<()> {
    let name = line.name();
    if let Some(request) = packet_requests::named(name) {
        return packet_requests::answer(request, line, store, room, page);
    }
    if edit_requests::is_named(name) {
        return edit_requests::answer(line, store, room, page);
    }
    if let Some(request) = raw_edits::named(name) {
        return raw_edits::answer(request, line, store, page);
    }
    if let Some(request) = plan_requests::named(name) {
        return plan_requests::answer(request, line, store, page);
    }
    if let Some(request) = cursor_requests::named(name) {
        return cursor_requests::answer(request, line, store, page);
    }
    if let Some(request) = building_requests::named(name) {
        return building_requests::answer(request, line, store, room, page);
    }
    answer_more(name, line, store, room, page)
}

// Answers a request on compaction, paths, streams or replays, or one on values.
fn answer_more(
    name: &[u8],
    line: &mut Line,
    store: &mut [u8],
    room: &mut [u8],
    page: &mut Page,
) -> Option<()> {
    if compact_requests::is_named(name) {
        return compact_requests::answer(line, store, room, page);
    }
    if let Some(request) = target_requests::named(name) {
        return target_requests::answer(request, line, store, room, page);
    }
    if let Some(request) = stream_requests::named(name) {
        return stream_requests::answer(request, line, store, room, page);
    }
    if let Some(request) = replay_requests::named(name) {
        return replay_requests::answer(request, line, store, room, page);
    }
    answer_value(name, line, store, room, page)
}

// Answers a request on values, headers, blocks, raw packets or frames.
fn answer_value(
    name: &[u8],
    line: &mut Line,
    store: &mut [u8],
    room: &mut [u8],
    page: &mut Page,
) -> Option<()> {
    if let Some(request) = value_requests::named(name) {
        return value_requests::answer(request, line, store, room, page);
    }
    if let Some(request) = header_requests::named(name) {
        return header_requests::answer(request, line, store, room, page);
    }
    if let Some(request) = block_requests::named(name) {
        return block_requests::answer(request, line, store, room, page);
    }
    if let Some(request) = raw_writing::named(name) {
        return raw_writing::answer(request, line, store, room, page);
    }
    let request = frame_requests::named(name)?;
    frame_requests::answer(request, line, store, room, page)
}
