//! What stands between the lines and the script. Made by tools/page_parts of tools/page_source: change it there.

/// The text.
pub const MIDDLE: &str = "</script>
<script>";
