use sd_base::Text;
use std::alloc::AllocError;
use std::string::String;

// The string that a text gives back, and else the bytes of the text that came back.
fn given_back(text: Text) -> Result<String, usize> {
    match text.into_string() {
        Ok(string) => Ok(string),
        Err(text) => Err(text.as_str().len()),
    }
}

#[test]
fn texts_give_their_strings_back(rt: HostRuntime) -> Result<(), AllocError> {
    let alloc = rt.alloc();
    for word in ["", "a", "sixteen letters.", "seventeen letters"] {
        let string = String::from_str(alloc, word)?;
        assert_eq!(rt;
            given_back(Text::new(string)).as_deref(),
            Ok(word),
            "{word}"
        );
    }
    assert_eq!(rt;
        given_back(Text::of(alloc, "sixteen letters.")?).as_deref(),
        Err(&16)
    );
    assert_eq!(rt;
        given_back(Text::of(alloc, "seventeen letters")?).as_deref(),
        Ok("seventeen letters")
    );
    Ok(())
}
