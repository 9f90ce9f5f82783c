//! The end of a page. Made by tools/page_parts of tools/page_source: change it there.

/// The text.
pub const END: &str = "</script>
</body>
</html>
";
