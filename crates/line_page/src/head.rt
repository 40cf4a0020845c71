//! The head of the page, up to its style.
ghost use Rattle.std.specs.Prelude.{◌≡◌};
ghost use Rattle.line_page.specs.Texts.{head_text};

/// The first lines.
#[tactic(auto, unfolding(crate::specs::Texts::head_text))]
pub fn head() -> &'static [u8]
    ensures { result.now ≡ head_text }
{
    HEAD
}

const HEAD: &[u8] = br##"<!doctype html>
<html lang="en">
<head>
<meta charset="utf-8">
<meta name="viewport" content="width=device-width, initial-scale=1">
<meta name="color-scheme" content="light dark">
<meta http-equiv="Content-Security-Policy" content="default-src 'none'; style-src 'unsafe-inline'; script-src 'unsafe-inline'">
<title>A lock's queue, event by event</title>
<script>document.documentElement.className = "scripted";</script>
<style>
"##;
